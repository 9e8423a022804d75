// The definition of the conjugate gradient, soft_fem_sparse.rs's ConjugateGradient (rules, module 5): what one turn comes to, and what a run of them.
#![tactic(auto)]

// What one turn came to: a curvature that isn't above zero, a residual within the threshold, or neither. Floats are squared
// lengths of the residual; Bent's is the denominator, and rz is the residual times the preconditioned residual.
#[derive(Clone, Copy)]
pub enum Turned {
    Bent(f32),
    Done(f32),
    Onward { norm: f32, rz: f32 },
}

// What a solve is to reach: the residual's length as a part of b's, or else so many turns.
#[derive(Clone, Copy)]
pub struct Settings {
    pub tolerance: f32,
    pub max_iterations: usize,
}

// How a solve ended: after how many turns, and with what squared length of the running residual.
#[derive(Clone, Copy)]
pub enum Outcome {
    Zero {
        count: usize,
    },
    Near {
        count: usize,
        residual: f32,
    },
    Converged {
        count: usize,
        residual: f32,
    },
    Curvature {
        count: usize,
        residual: f32,
        denominator: f32,
    },
    Limit {
        count: usize,
        residual: f32,
    },
}
