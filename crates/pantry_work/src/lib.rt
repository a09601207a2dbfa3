// What the pantry does between reading and writing: a saved collection is taken up again, and the
// ciphertext is given out, or why there is none: R15.6 and R15.7. Each public function takes any
// arguments.
//
// What is given out is what finish says of the set of pages (`pantry`, `prints`: promises,
// Programs). Taking up leaves the one collection of the union of what was saved and what was
// scanned now (`resume_union`, `resume_lists`: pantry_work, Demand), and a refusal changes nothing
// (`refused_keeps`). Since a session's collection is well formed, 13 is said of the saved bytes and
// 12 of their document (`resume_13`, `resume_12`, `resume_0`: pantry_work, Sessions). Of a whole
// input: what is kept (`file_kept`), and which files are refused (`damaged_13`, `another_12`,
// `none_19`: pantry_work, Pantry).
#![tactic(auto)]

ghost use Rattle.wire.specs.Answer.{Kept};
ghost use Rattle.collection.specs.Answer.{told};
ghost use Rattle.finish.specs.Finish.{Closed};
ghost use Rattle.pantry_work.specs.Steps.{resuming, answered};

use scan::session;
use scan::session::Session;
use wire::{Refusal, RefusedAt};

// What was saved joined into the collection c of a session; or 19 where the session does not
// collect, then 13 and 12 as of `collection::join`, and nothing changed.
pub fn resume(s: Session, saved: &[u8], c: &mut [u8]) -> Result<(), Refusal>
    ensures { Kept (resuming s.phase c.old saved.now) c.old c.new (told result) }
{
    if s.phase == session::COLLECTING {
        return collection::join(c, saved);
    }
    Err(Refusal::OutOfRange)
}

// The ciphertext of a session's collection at the front of out, and its length; or 19 where the
// session does not collect, then the refusals of `finish`, and nothing changed.
pub fn answer(s: Session, c: &[u8], out: &mut [u8]) -> Result<usize, RefusedAt>
    ensures { Closed (answered s.phase c.now out.old) out.old out.new result }
{
    if s.phase != session::COLLECTING {
        return Err(RefusedAt::from(Refusal::OutOfRange));
    }
    finish::finish(c, out)
}
