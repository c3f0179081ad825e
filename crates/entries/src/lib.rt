// Every entry in one pass: all rows of a subsection of names, of metadata or of hints, put into lent lists. The calls, in `naming` and `items`, take any bytes and any lists.
#![tactic(auto)]

mod counting;
mod hints;
pub mod items;
mod maps;
pub mod naming;
mod rows;

ghost use Rattle.std.specs.Prelude.{◌≡◌, Ok, Err, Some};
ghost use Rattle.format.specs.declared.Reason.TheVariants.{OutputTooShort};

use format::{Answer, Offset, Place, Reason, Refusal};

// So many rows, all of them in the lists.
fn found(n: usize) -> Answer
    ensures { result ≡ Ok (Some (record { offset = record { 0 = 0 }; length = n })) }
{
    Ok(Some(Place {
        offset: Offset(0),
        length: n,
    }))
}

// So many rows, for which one of the lists is too short.
fn too_short(n: usize) -> Answer
    ensures { result ≡ Err (record { reason = OutputTooShort; offset = record { 0 = n } }) }
{
    Err(Refusal {
        reason: Reason::OutputTooShort,
        offset: Offset(n),
    })
}
