// The look at a qudit of a lent tableau.
#![tactic(auto)]

ghost use Rattle.std.specs.Prelude.{◌≡◌};
ghost use Rattle.answer.specs.Refusal.{number_of};
ghost use Rattle.look_call.specs.LookBytes.{told, look_refused, look_answered, look_bytes};

use answer::Refusal;
use measurement::Look;

// What a look returns: 0, then 1 and 0 if a measurement would be free, 0 and the outcome if it would be certain; or a refusal's number, 0
// and 0.
#[repr(C)]
#[derive(Clone, Copy)]
pub struct LookAnswer {
    pub number: usize,
    pub free: usize,
    pub outcome: usize,
}

impl From<Look> for LookAnswer {
    ghost from_gives = { λ seen a. a ≡ told seen };

    fn from(seen: Look) -> LookAnswer {
        let (free, outcome) = match seen {
            Look::Free { .. } => (1, 0),
            Look::Certain { outcome } => (0, usize::from(outcome)),
        };
        LookAnswer {
            number: 0,
            free,
            outcome,
        }
    }
}

impl From<Refusal> for LookAnswer {
    ghost from_gives = { λ r a. a ≡ look_refused (number_of r) };

    fn from(refusal: Refusal) -> LookAnswer {
        LookAnswer {
            number: refusal.number(),
            free: 0,
            outcome: 0,
        }
    }
}

// A look at a qudit: refusals 8, 2, 3, 8 and 9 as the tableau test, then 13.
fn look_or_refuse(t: &[u8], qudit: usize) -> Result<Look, Refusal>
    ensures { look_answered result ≡ look_bytes t.now qudit }
{
    tableau_calls::tested(t)?;
    let d = t[0];
    let n = usize::from(t[1]);
    if qudit >= n {
        return Err(Refusal::Number);
    }
    Ok(measurement_look::look_at(&t[2..], qudit, d, n))
}

// What a measurement of the qudit would be, or the refusal.
pub fn look(t: &[u8], qudit: usize) -> LookAnswer
    ensures { result ≡ look_bytes t.now qudit }
{
    match look_or_refuse(t, qudit) {
        Ok(seen) => LookAnswer::from(seen),
        Err(refusal) => LookAnswer::from(refusal),
    }
}
