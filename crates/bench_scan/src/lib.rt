// One pass over a text: the numbers that its bytes stand for. What is called asks for a text within the limit, so there is no door here.
#![tactic(auto)]

pub mod inner;
