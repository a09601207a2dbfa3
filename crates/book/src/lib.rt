// A collection as a whole: its head block, and 96 page blocks behind it (section 8 of
// docs/RULES.md). Each public function takes any arguments. Nobody else knows where in the head its
// parts stand, or decides that a collection is refused.
//
// Well formed is exactly what the rules say, both ways (`encode_ok`, `decoded`: book, Round and
// Decode).
#![tactic(auto)]

pub mod tally;

ghost use Rattle.std.specs.Prelude.{◌≡◌, ◌+◌, ◌*◌, ◌≤◌, length, replicate};
ghost use Rattle.wire.specs.Answer.{number_of};
ghost use Rattle.wire.specs.Reading.{told};
ghost use Rattle.wire.specs.Over.{over};
ghost use Rattle.wire.specs.Sizes.{id_size, block_size, summed_size};
ghost use Rattle.book.specs.Head.{head_for, head_body, with_head, read_head, ok_total, has_head, head_in};
ghost use Rattle.book.specs.Encode.{with_blank};
ghost use Rattle.book.specs.Read.{page_at, ok_at, book_in};

use block::PageState;
use wire::Refusal;

// The pages of a collection, by index (R8.1).
pub const PAGES: u8 = 96;

// The states of a head (R8.3).
//
// stays (1): any byte may stand where the state does, and `state` and `write_head` speak of all.
pub const EMPTY: u8 = 0;

pub const COLLECTING: u8 = 1;

pub const DISAGREE: u8 = 2;

// Where the parts of the head stand, behind its magic and its version (R8.3).
const STATE_AT: usize = 3;

const ID_AT: usize = 4;

const TOTAL_AT: usize = 12;

const ZEROS_AT: usize = 13;

const ZEROS: usize = wire::SUMMED_SIZE - ZEROS_AT;

// Where the page block of index k begins: at 512 + 512 k.
pub fn place(k: u8) -> usize
    ensures { result ≡ block_size + block_size * k }
{
    wire::BLOCK_SIZE + wire::BLOCK_SIZE * usize::from(k)
}

// All of the head block before its checksum (R8.3).
fn head_body(c: &mut [u8], id: &[u8], state: u8, total: u8)
    requires { (summed_size ≤ length c.old) × (length id.now ≡ id_size) }
    ensures { c.new ≡ over 0 (head_body (head_for id.now state total)) c.old }
{
    lend::copy(c, 0, b"IM\x01");
    lend::put(c, STATE_AT, state);
    lend::copy(c, ID_AT, id);
    lend::put(c, TOTAL_AT, total);
    lend::clear(c, ZEROS_AT, ZEROS);
}

// The head block in front of c. Nothing changes where the id has not 8 bytes or there is no room.
pub fn write_head(c: &mut [u8], id: &[u8], state: u8, total: u8)
    ensures { c.new ≡ with_head (head_for id.now state total) c.old }
{
    if id.len() != wire::ID_SIZE {
        return;
    }
    if c.len() < wire::BLOCK_SIZE {
        return;
    }
    head_body(c, id, state, total);
    block::seal(c, 0);
}

// Whether a state and a total go together (R8.3).
fn total_ok(state: u8, total: u8) -> bool
    ensures { result ≡ ok_total state total }
{
    if state == COLLECTING {
        if total == 0 {
            return false;
        }
        return total <= PAGES;
    }
    if state <= DISAGREE {
        return total == 0;
    }
    false
}

// ---- what the head says, of any bytes

// The state that the head says; 0 where c ends before it.
pub fn state(c: &[u8]) -> u8
    ensures { result ≡ (read_head c.now).state }
{
    c.get(STATE_AT).copied().unwrap_or(0)
}

// The total that the head says; 0 where c ends before it.
pub fn total(c: &[u8]) -> u8
    ensures { result ≡ (read_head c.now).total }
{
    c.get(TOTAL_AT).copied().unwrap_or(0)
}

// The document's id as the head says it: fewer than 8 bytes where c ends before.
pub fn id(c: &[u8]) -> &[u8]
    ensures { result.now ≡ (read_head c.now).id }
{
    let n = c.len();
    if n < ID_AT {
        return &c[0..0];
    }
    if n < TOTAL_AT {
        return &c[ID_AT..n];
    }
    &c[ID_AT..TOTAL_AT]
}

// The document's id as the head says it, as 8 bytes of its own: zeros stand where c ends before.
//
// A caller that is about to write c needs this copy.
pub fn id_copy(c: &[u8]) -> [u8; 8]
    ensures { result ≡ over 0 (read_head c.now).id (replicate id_size 0) }
{
    let mut copy = [0u8; wire::ID_SIZE];
    lend::copy(&mut copy, 0, id(c));
    copy
}

// ---- the judge

// Whether c has a collection's size (R8.1) and a well-formed head: it is the head block of what it
// says (R8.7).
fn head_ok(c: &[u8]) -> bool
    ensures { result ≡ has_head c.now }
{
    if c.len() != wire::COLLECTION_SIZE {
        return false;
    }
    let state = state(c);
    let total = total(c);
    if !total_ok(state, total) {
        return false;
    }
    let mut again = [0u8; wire::BLOCK_SIZE];
    write_head(&mut again, id(c), state, total);
    lend::equal(&c[0..wire::BLOCK_SIZE], &again)
}

// Whether c is refused for its head: 13 where its size is not right or the head is not the head
// block of what it says.
pub fn judge_head(c: &[u8]) -> Result<(), Refusal>
    ensures { number_of (told result) ≡ number_of (head_in c.now) }
{
    if head_ok(c) {
        return Ok(());
    }
    Err(Refusal::BadCollection)
}

// True exactly where the page block of index k is well formed under the head of c.
pub fn page_ok(c: &[u8], k: u8) -> bool
    ensures { result ≡ ok_at (read_head c.now) k (page_at k c.now) }
{
    let at = place(k);
    if total(c) <= k {
        if block::state(c, at) != PageState::Absent {
            return false;
        }
    }
    block::well_formed(c, at, id(c), k)
}

// Whether c is refused as a whole: 13 for its head, then 13 where a page block is not well formed.
pub fn judge(c: &[u8]) -> Result<(), Refusal>
    ensures { number_of (told result) ≡ number_of (book_in c.now) }
{
    judge_head(c)?;
    for k in 0..PAGES {
        if !page_ok(c, k) {
            return Err(Refusal::BadCollection);
        }
    }
    Ok(())
}

// Every page absent behind the head. Nothing changes where the id has not 8 bytes or there is no
// room.
pub fn blank(c: &mut [u8], id: &[u8])
    ensures { c.new ≡ with_blank id.now c.old }
{
    if id.len() != wire::ID_SIZE {
        return;
    }
    if c.len() < wire::COLLECTION_SIZE {
        return;
    }
    for i in 0..PAGES {
        block::vacate(c, place(i), id, i);
    }
}
