// What a measurement of a qudit is.
#![tactic(auto)]

// Each measurement is either free, with its pivot stabilizer, or certain, with its outcome.
#[derive(Clone, Copy)]
pub enum Look {
    Free { pivot: usize },
    Certain { outcome: u8 },
}
