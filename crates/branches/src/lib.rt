// K6: whether every branch hint of a module sits on br_if or if. The call takes any bytes.
#![tactic(auto)]

ghost use Rattle.std.specs.Prelude.{◌≡◌};
ghost use Rattle.format.specs.Questions.{answered, as_place};
ghost use Rattle.format.specs.Verdicts.{verdict_of};
ghost use Rattle.format.specs.Walk.{hint_section, custom_payload};
ghost use Rattle.reading.specs.Cursors.{Inside, part_of};
ghost use Rattle.branches.specs.Branches.{imported_functions, hints_checked, payload_on_branches};
ghost use Rattle.branches.specs.Functions.{Listed};
ghost use Rattle.branches.specs.Lists.{AllBodies};
ghost use Rattle.branches.specs.Promises.{BranchesHintsOnBranches};
ghost use Rattle.branches.specs.Reads.{counted};
ghost use Rattle.branches.specs.Sections.{Walked};

use crate::bodies::{Bodies, BodiesRead, bodies_in};
use crate::functions::each_function;
use crate::imports::{Counted, imports_in};
use crate::sections::{CODE, IMPORTS, contents_of};
use format::{Answer, Verdict};
use reading::Cursor;
use tables::Item;
use walk::rows::{BRANCH_HINT, METADATA};

mod bodies;
mod functions;
mod hints;
mod imports;
mod reads;
mod seats;
mod sections;

// Where the branch hints lie.
fn hint_section(m: &[u8]) -> Answer
    ensures { answered result ≡ as_place (custom_payload hint_section m.now) }
{
    walk::custom_joined(m, &METADATA, &BRANCH_HINT)
}

// How many functions are imported: without an import section none.
fn imported(m: &[u8]) -> Counted
    requires { Walked m.now }
    ensures { counted result ≡ imported_functions m.now }
{
    let Some(c) = contents_of(m, IMPORTS) else {
        return Ok(0);
    };
    imports_in(c, m)
}

// The bodies: without a code section there is none.
fn all_bodies(m: &[u8]) -> BodiesRead
    requires { Walked m.now }
    ensures { AllBodies m.now result }
{
    let Some(c) = contents_of(m, CODE) else {
        return Ok((Cursor { at: 0, end: 0 }, 0));
    };
    bodies_in(c, m)
}

// The imports, the bodies, and then hint by hint.
fn checked(m: &[u8], payload: Cursor) -> Verdict
    requires walked { Walked m.now }
    requires listed { Listed m.now payload }
    ensures { verdict_of result ≡ hints_checked m.now (part_of m.now payload) }
{
    let functions = imported(m)?;
    let (next, more) = all_bodies(m)?;
    let first = functions as u64;
    each_function(payload, Bodies { first, next, more }, m)
}

// The payload comes first.
fn on_branches(m: &[u8], payload: Cursor) -> Verdict
    requires walked { Walked m.now }
    requires inside { Inside m.now payload }
    ensures { verdict_of result ≡ payload_on_branches m.now (part_of m.now payload) }
{
    metadata::judge_in(m, payload, Item::Hint)?;
    checked(m, payload)
}

// Whether every hint of a module sits on a branch. Without the hint section neither imports nor bodies are read.
pub fn hints_on_branches(m: &[u8]) -> Verdict
    ensures { BranchesHintsOnBranches m.now result }
{
    let found = hint_section(m)?;
    let Some(place) = found else {
        return Ok(());
    };
    let offset = place.offset;
    let at = offset.0;
    let end = at + place.length;
    on_branches(m, Cursor { at, end })
}
