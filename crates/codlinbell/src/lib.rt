// Codlinbell: the answer to an image over a lent heap, the verdict on it alone, and the C interface.
#![tactic(auto)]

mod answer;
mod fronts;
mod heap;
mod host;
mod verdict;

pub use answer::{DEFAULT_LIMIT, answer_to, answer_within};
pub use host::codlinbell_answer;
pub use verdict::judge_image;
