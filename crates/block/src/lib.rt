// The blocks of a collection: R8.2, R8.4 and R8.5. Each function takes any arguments.
#![tactic(auto)]

ghost use Rattle.std.specs.Prelude.{◌≡◌, ◌&&◌, [], ◌∷◌, ◌+◌, ◌≤◌, ◌<◌, eqb, leb, length};
ghost use Rattle.wire.specs.Answer.{choose};
ghost use Rattle.wire.specs.Over.{over};
ghost use Rattle.wire.specs.Sizes.{most_data, id_size, summed_size};
ghost use Rattle.model.specs.Book.{absent, held, disputed, data_of};
ghost use Rattle.block.specs.Block.{state_of, state_number, page_body, sealed, with_page, with_sum};
ghost use Rattle.block.specs.Read.{block_at, read_slot, ok_page, holding};

// The states of a page (R8.4).
#[derive(Clone, Copy, Debug, PartialEq, Eq)]
pub enum PageState {
    Absent,
    Held,
    Disputed,
}

// The byte that a block says it by (R8.4).
impl From<PageState> for u8 {
    ghost from_gives = { λ state n. n ≡ state_number state };

    fn from(state: PageState) -> u8 {
        match state {
            PageState::Absent => 0,
            PageState::Held => 1,
            PageState::Disputed => 2,
        }
    }
}

// Where the length of the data stands, in two bytes, the higher first, and where the data begin
// (R8.4), and how many bytes stand from there to the checksum: the data and
// zeros behind them (R8.5).
const LENGTH_AT: usize = 12;

const DATA_AT: usize = LENGTH_AT + 2;

const DATA_ROOM: usize = wire::SUMMED_SIZE - DATA_AT;

const DATA_END: usize = DATA_AT + wire::MOST_DATA;

// The checksum of the 508 bytes from the position on, behind them. Nothing changes where there is
// no room.
pub fn seal(out: &mut [u8], at: usize)
    ensures { out.new ≡ with_sum at out.old }
{
    if out.len() < wire::BLOCK_SIZE {
        return;
    }
    if out.len() - wire::BLOCK_SIZE < at {
        return;
    }
    let end = at + wire::SUMMED_SIZE;
    let sum = crc::sum(&out[at..end]);
    lend::copy(out, end, &sum);
}

// The four bytes before the id (R8.4).
fn front(out: &mut [u8], at: usize, index: u8, state: PageState)
    requires { at + 4 ≤ length out.old }
    ensures { out.new ≡ over at (0x50 ∷ index ∷ state_number state ∷ 0 ∷ []) out.old }
{
    lend::put(out, at, 0x50);
    lend::put(out, at + 1, index);
    lend::put(out, at + 2, u8::from(state));
    lend::put(out, at + 3, 0);
}

// All before the checksum (R8.4, R8.5).
fn body(out: &mut [u8], at: usize, id: &[u8], index: u8, state: PageState, bytes: &[u8])
    requires { (at + summed_size ≤ length out.old) × (length id.now ≡ id_size) × (length bytes.now ≤ most_data) }
    ensures { out.new ≡ over at (page_body id.now index (state_number state) bytes.now) out.old }
{
    let n = bytes.len();
    front(out, at, index, state);
    lend::copy(out, at + 4, id);
    lend::copy(out, at + LENGTH_AT, &(n as u16).to_be_bytes());
    lend::copy(out, at + DATA_AT, bytes);
    lend::clear(out, at + DATA_AT + n, DATA_ROOM - n);
}

// The whole block, where there is one with this id and this data.
fn write(out: &mut [u8], at: usize, id: &[u8], index: u8, state: PageState, bytes: &[u8])
    ensures { out.new ≡ choose (eqb (length id.now) id_size && leb (length bytes.now) most_data) (over at (sealed (page_body id.now index (state_number state) bytes.now)) out.old) out.old }
{
    if id.len() != wire::ID_SIZE {
        return;
    }
    if wire::MOST_DATA < bytes.len() {
        return;
    }
    if out.len() < wire::BLOCK_SIZE {
        return;
    }
    if out.len() - wire::BLOCK_SIZE < at {
        return;
    }
    body(out, at, id, index, state, bytes);
    seal(out, at);
}

// The block of a page that is held with these bytes, from the position on. Nothing changes where
// there is no such block or no room.
//
// stays (5): at, id and index go together here and below, but each caller would build a struct for
// one call.
//
// stays (2): hold, dispute and vacate are one function, `write`, under the names of its three
// states.
pub fn hold(out: &mut [u8], at: usize, id: &[u8], index: u8, bytes: &[u8])
    ensures { out.new ≡ with_page at id.now index (held bytes.now) out.old }
{
    write(out, at, id, index, PageState::Held, bytes);
}

// The block of a disputed page, from the position on. Nothing changes where there is no such block
// or no room.
pub fn dispute(out: &mut [u8], at: usize, id: &[u8], index: u8)
    ensures { out.new ≡ with_page at id.now index disputed out.old }
{
    write(out, at, id, index, PageState::Disputed, &id[0..0]);
}

// The block of an absent page, from the position on. Nothing changes where there is no such block
// or no room.
pub fn vacate(out: &mut [u8], at: usize, id: &[u8], index: u8)
    ensures { out.new ≡ with_page at id.now index absent out.old }
{
    write(out, at, id, index, PageState::Absent, &id[0..0]);
}

// The block from index at on; no bytes where it is not whole.
fn block(c: &[u8], at: usize) -> &[u8]
    ensures { result.now ≡ block_at at c.now }
{
    if c.len() < wire::BLOCK_SIZE {
        return &c[0..0];
    }
    if c.len() - wire::BLOCK_SIZE < at {
        return &c[0..0];
    }
    let end = at + wire::BLOCK_SIZE;
    &c[at..end]
}

// The state that the block at the position says: any number above 1 counts as 2.
pub fn state(c: &[u8], at: usize) -> PageState
    ensures { state_number result ≡ state_of (read_slot (block_at at c.now)) }
{
    let b = block(c, at);
    if b.len() < wire::BLOCK_SIZE {
        return PageState::Absent;
    }
    match b[2] {
        0 => PageState::Absent,
        1 => PageState::Held,
        _ => PageState::Disputed,
    }
}

// The data that the block at the position says: none unless it is held.
pub fn contents(c: &[u8], at: usize) -> &[u8]
    ensures { result.now ≡ data_of (read_slot (block_at at c.now)) }
{
    if state(c, at) != PageState::Held {
        return &c[0..0];
    }
    let b = block(c, at);
    let n = usize::from(u16::from_be_bytes([b[LENGTH_AT], b[LENGTH_AT + 1]]));
    if wire::MOST_DATA < n {
        return &b[DATA_AT..DATA_END];
    }
    let end = DATA_AT + n;
    &b[DATA_AT..end]
}

// True exactly where the block at the position is held, with these bytes as its data.
#[tactic(auto, using(crate::proofs::States::same_held, crate::proofs::Reading::holding_is))]
pub fn holds(c: &[u8], at: usize, bytes: &[u8]) -> bool
    ensures { result ≡ holding (read_slot (block_at at c.now)) bytes.now }
{
    state(c, at) == PageState::Held && lend::equal(contents(c, at), bytes)
}

// True exactly where the block at the position is the block of what it says, for this id and this
// index.
pub fn well_formed(c: &[u8], at: usize, id: &[u8], index: u8) -> bool
    ensures { result ≡ ok_page id.now index (block_at at c.now) }
{
    if id.len() != wire::ID_SIZE {
        return false;
    }
    let mut again = [0u8; wire::BLOCK_SIZE];
    write(&mut again, 0, id, index, state(c, at), contents(c, at));
    lend::equal(block(c, at), &again)
}
