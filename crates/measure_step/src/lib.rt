// One measurement, and one reset, on the rows.
#![tactic(auto)]

ghost use Rattle.std.specs.Prelude.{◌≡◌, ◌+◌, ◌*◌, ◌<◌, length};
ghost use Rattle.validity.specs.Validity.{Valid};
ghost use Rattle.measurement.specs.Look.{look};
ghost use Rattle.runs.specs.Run.{with_result};
ghost use Rattle.runs.specs.Direct.{state_of, direct_look, reset_rows};
ghost use Rattle.measure_step.specs.Supplied.{RunTables, Supplied};
ghost use Rattle.measure_step.specs.Measured.{rows_measured, outcome_of, mark_of};
ghost use Rattle.measure_step.specs.Outcome.{value_of, mark_in};

use measurement::Look;
use modular::Modulus;
use tables::Tables;

// What a measurement gave: its outcome, and whether it was free or certain.
#[derive(Clone, Copy, Debug, PartialEq, Eq)]
pub enum Outcome {
    Free(u8),
    Certain(u8),
}

impl Outcome {
    pub fn value(self) -> u8
        ensures { result ≡ value_of self }
    {
        match self {
            Outcome::Free(value) | Outcome::Certain(value) => value,
        }
    }

    // The byte that stands behind the outcome in the results.
    pub fn mark(self) -> u8
        ensures { result ≡ mark_in self }
    {
        match self {
            Outcome::Free(_) => 1,
            Outcome::Certain(_) => 0,
        }
    }
}

// Writes the result of measurement j: its outcome, then 0 certain or 1 free.
#[tactic(auto, unfolding(runs::specs::Run::with_result))]
fn write_result(results: &mut [u8], j: usize, given: Outcome)
    requires { 2 * j + 1 < length results.old }
    ensures { results.new ≡ with_result results.old j (value_of given) (mark_in given) }
{
    results[2 * j] = given.value();
    results[2 * j + 1] = given.mark();
}

// Measures qudit q: a free measurement uses choice c.
fn measured(
    t: &mut [u8],
    choices: &[u8],
    c: usize,
    q: usize,
    tables: &Tables,
    d: u8,
    n: usize,
) -> Outcome
    requires made { RunTables d n tables.now.d }
    requires qudit { q < n }
    requires supplied { Supplied d c 1 choices.now }
    requires valid { Valid d n t.old }
    ensures rows { t.new ≡ rows_measured d n choices.now c q t.old (look d n t.old q) }
    ensures outcome { value_of result ≡ outcome_of d n choices.now c (look d n t.old q) }
    ensures mark { mark_in result ≡ mark_of (look d n t.old q) }
    ensures small { value_of result < d }
    ensures valid { Valid d n t.new }
{
    match measurement_look::look_at(t, q, d, n) {
        Look::Free { pivot } => {
            let choice = choices[c];
            measurement_collapse::collapse(t, pivot, q, choice, Modulus::new(d), n);
            Outcome::Free(choice)
        }
        Look::Certain { outcome } => Outcome::Certain(outcome),
    }
}

// Measurement j, of qudit q: it takes choice c, whether it is used or not, and gives a result.
pub fn measure(
    t: &mut [u8],
    results: &mut [u8],
    choices: &[u8],
    c: usize,
    j: usize,
    q: usize,
    tables: &Tables,
    d: u8,
    n: usize,
)
    requires { RunTables d n tables.now.d
        × (q < n)
        × Supplied d c 1 choices.now
        × (2 * j + 1 < length results.old)
        × Valid d n t.old }
    ensures { (state_of t.new results.new
        ≡ direct_look d n choices.now c j q (state_of t.old results.old) (look d n t.old q))
        × Valid d n t.new }
{
    let given = measured(t, choices, c, q, tables, d, n);
    write_result(results, j, given);
}

// A reset of qudit q: it is measured, taking choice c but giving no result, and then X to the minus outcome is applied.
pub fn reset(t: &mut [u8], choices: &[u8], c: usize, q: usize, tables: &Tables, d: u8, n: usize)
    requires { RunTables d n tables.now.d
        × (q < n)
        × Supplied d c 1 choices.now
        × Valid d n t.old }
    ensures { (t.new
        ≡ reset_rows d n choices.now c q t.old (look d n t.old q))
        × Valid d n t.new }
{
    let given = measured(t, choices, c, q, tables, d, n);
    error::minus_x_rows(t, q, given.value(), tables, n);
}
