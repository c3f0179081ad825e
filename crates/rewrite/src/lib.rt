// Canonical rewritings of payloads into a lent output. Every public call takes any bytes.
#![tactic(auto)]

mod contents;
mod items;
mod subsections;
mod whole;

ghost use Rattle.rewrite.specs.Promises.{RewriteNames, RewriteMetadata, RewriteHints};

use format::{Edition, Written};
use names::judging;
use reading::Cursor;

// The canonical form of a name payload, which is read by an edition.
pub fn names(p: &[u8], edition: Edition, out: &mut [u8]) -> Written
    ensures { RewriteNames p.now edition out.old out.new result }
{
    judging::judge(p, edition)?;
    subsections::put_payload(p, Cursor::over(p), edition, out)
}

// The canonical form of a metadata payload of any format.
pub fn metadata(p: &[u8], out: &mut [u8]) -> Written
    ensures { RewriteMetadata p.now out.old out.new result }
{
    metadata::judge(p)?;
    items::put_items(p, Cursor::over(p), out)
}

// The canonical form of a payload of branch hints.
pub fn hints(p: &[u8], out: &mut [u8]) -> Written
    ensures { RewriteHints p.now out.old out.new result }
{
    metadata::judge_hints(p)?;
    items::put_items(p, Cursor::over(p), out)
}
