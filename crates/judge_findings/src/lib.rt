// The findings of a draft under the tables, and the laws of their list; what a check answers.
#![tactic(auto)]

use refusals::Refusal;

// How many findings there are, or a refusal with what it returns.
pub type Answer = Result<usize, Refusal>;
