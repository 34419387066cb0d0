// The two runs over decoded lists, and where a run stands.
#![tactic(auto)]

// The next error entry, how many measurements were made, and how many choices were taken. A run begins at 0 of each.
#[derive(Clone, Copy, Debug, Default, PartialEq, Eq)]
pub struct Position {
    pub entry: usize,
    pub measurements: usize,
    pub choices: usize,
}
