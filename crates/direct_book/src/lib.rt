// The direct run of a book, whole, told to halt and going on: what is returned and left; no code.
#![tactic(auto)]

// What the direct run returns: 0, the number of measurements and the number of the next operation, one more than there are operations
// when the run has finished; or a refusal's number, its place and 0.
#[repr(C)]
#[derive(Clone, Copy)]
pub struct DirectAnswer {
    pub number: usize,
    pub place: usize,
    pub next: usize,
}
