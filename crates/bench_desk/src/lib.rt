// The bench program's answer to a text. THE DOOR `answer` refuses by the text's own refusal, or writes the lines of its plan.
#![tactic(auto)]

ghost use Rattle.bench_answer.specs.Answering.{left, Answers};

use law::refusal::Refusal;

mod session;

// The lists are here, each as long as the limits ask, and nothing else: arrays, since the project uses no heap.
pub fn answer(text: &[u8], out: &mut [u8]) -> Result<usize, Refusal>
    ensures { Answers text.now out.old (left result out.new) }
{
    let mut numbers = [0u32; 8192];
    let mut row_offsets = [0u32; 1025];
    let mut cols = [0u32; 9216];
    let mut diagonal = [0u32; 1024];
    let mut work = [0u32; 8192];
    let mut order = [0u32; 1024];
    let mut first = [0u32; 2048];
    session::answer_text(
        text,
        &mut numbers,
        &mut row_offsets,
        &mut cols,
        &mut diagonal,
        &mut work,
        &mut order,
        &mut first,
        out,
    )
}
