// Each refusal of the second door, of the finder and of the writer with its position: a good candidate with something wrong in it.
use choices::Outcome;
use clerk::kept_from;
use model::limits::{
    GIVEN_LENGTH, MOST_ACTIONS, MOST_PLACES, MOST_THREADS, ORDER_LENGTH, STORE_LENGTH,
};
use model::refusals::{Reason, Refusal};
use model::{Action, ActionKind, Header, Judged};
use std::io;
use std::io::{Stdout, Write};

// Where the numbers of asw, dd, cd, rf, sc and mo begin in the store.
const ASW_AT: usize = rows::AREA * (model::ASW as usize);

const DD_AT: usize = rows::AREA * (model::DD as usize);

const CD_AT: usize = rows::AREA * (model::CD as usize);

const RF_AT: usize = rows::AREA * (model::RF as usize);

const SC_AT: usize = rows::AREA * (model::SC as usize);

const MO_AT: usize = rows::AREA * (model::MO as usize);

// Where the numbers of row 1 and of row 2 begin in a relation, and those of the last row.
const ROW_1: usize = rows::WIDE;

const ROW_2: usize = rows::WIDE * 2;

const LAST_ROW: usize = rows::WIDE * (rows::SIZE - 1);

// What is answered where something lent is too short.
const NO_ROOM: Refusal = Refusal {
    reason: Reason::ShortBuffer,
    at: 0,
};

// Bytes of the writer's buffer: more than any file here has.
const ROOM: usize = 800;

// How many actions, place bytes, numbers, order bytes and bytes for a file are lent, with the edition, N, T and P.
#[derive(Clone, Copy)]
struct Sizes {
    actions: usize,
    bytes: usize,
    head: Header,
    numbers: usize,
    order: usize,
    room: usize,
}

fn right_sizes() -> Sizes {
    Sizes {
        actions: 2,
        bytes: 2,
        head: Header {
            edition: 1,
            n: 2,
            t: 1,
            p: 2,
        },
        numbers: STORE_LENGTH,
        order: ORDER_LENGTH,
        room: ROOM,
    }
}

// Thread 0 stores 1 to place 0, and loads it; what comes after these two is not looked at.
fn actions() -> [Action; MOST_ACTIONS] {
    let stores = Action {
        what: ActionKind::Store,
        thread: 0,
        place: 0,
        read: 0,
        written: 1,
    };
    let mut list = [stores; MOST_ACTIONS];
    list[1] = Action {
        what: ActionKind::Load,
        thread: 0,
        place: 0,
        read: 1,
        written: 0,
    };
    list
}

// The same with action i in this thread and at this place.
fn moved(i: usize, thread: u16, place: u16) -> [Action; MOST_ACTIONS] {
    let mut list = actions();
    if i < MOST_ACTIONS {
        let x = list[i];
        let what = x.what;
        list[i] = Action {
            what,
            thread,
            place,
            read: x.read,
            written: x.written,
        };
    }
    list
}

// Place bytes that can be lent: one more than there may be.
const KINDS: usize = MOST_PLACES + 1;

// Place 0 is plain, place 1 a mutex.
fn kinds() -> [u8; KINDS] {
    let mut kinds = [0u8; KINDS];
    kinds[0] = 1;
    kinds
}

// The same with place i of this kind.
fn kinds_with(i: usize, kind: u8) -> [u8; KINDS] {
    let mut other = kinds();
    if i < KINDS {
        other[i] = kind;
    }
    other
}

// sb and rf from action 0 to action 1.
fn store() -> [u64; STORE_LENGTH] {
    let mut store = [0u64; STORE_LENGTH];
    store[0] = 2;
    store[RF_AT] = 2;
    store
}

// The same with this number i.
fn store_with(i: usize, number: u64) -> [u64; STORE_LENGTH] {
    let mut other = store();
    if i < STORE_LENGTH {
        other[i] = number;
    }
    other
}

fn say_answer(output: &mut Stdout, answer: Result<Judged, Refusal>) -> io::Result<()> {
    match answer {
        Err(refusal) => write!(output, "{refusal}"),
        Ok(_) => output.write_all(b"judged"),
    }
}

// The second door's answer at these sizes.
fn hand(
    z: Sizes,
    list: [Action; MOST_ACTIONS],
    kinds: &[u8],
    store: &mut [u64],
    order: &mut [u8],
) -> Result<Judged, Refusal> {
    let bytes = z.bytes.min(kinds.len());
    let numbers = z.numbers.min(store.len());
    let room = z.order.min(order.len());
    lender::judge_first(
        list,
        z.actions,
        &kinds[..bytes],
        z.head,
        &mut store[..numbers],
        &mut order[..room],
    )
}

// Writes what the second door answers, and whether store and order buffer are as they were lent.
fn tell_door(
    output: &mut Stdout,
    z: Sizes,
    list: [Action; MOST_ACTIONS],
    kinds: [u8; KINDS],
    lent: [u64; STORE_LENGTH],
) -> io::Result<()> {
    let mut store = lent;
    let mut order = [255u8; ORDER_LENGTH];
    let answer = hand(z, list, &kinds, &mut store, &mut order);
    output.write_all(b": ")?;
    say_answer(output, answer)?;
    if store == lent && order == [255u8; ORDER_LENGTH] {
        output.write_all(b", all kept")
    } else {
        output.write_all(b", written")
    }
}

fn say_finding(output: &mut Stdout, finding: Result<Outcome, Refusal>) -> io::Result<()> {
    match finding {
        Err(refusal) => write!(output, "{refusal}"),
        Ok(Outcome::Found { judged }) => write!(output, "found {judged}"),
        Ok(Outcome::None { judged }) => write!(output, "none {judged}"),
        Ok(Outcome::Undecided { judged }) => write!(output, "undecided {judged}"),
    }
}

// The finder's answer at these sizes, with a budget of 2.
fn seek(
    z: Sizes,
    list: [Action; MOST_ACTIONS],
    kinds: &[u8],
    store: &mut [u64],
) -> Result<Outcome, Refusal> {
    let bytes = z.bytes.min(kinds.len());
    let numbers = z.numbers.min(store.len());
    lender::find_first(
        list,
        z.actions,
        &kinds[..bytes],
        z.head,
        &mut store[..numbers],
        2,
    )
}

// Writes what the finder answers, and whether the store is as it was lent.
fn tell_finder(
    output: &mut Stdout,
    z: Sizes,
    list: [Action; MOST_ACTIONS],
    kinds: [u8; KINDS],
    lent: [u64; STORE_LENGTH],
) -> io::Result<()> {
    let mut store = lent;
    let finding = seek(z, list, &kinds, &mut store);
    output.write_all(b"; finder: ")?;
    say_finding(output, finding)?;
    if store == lent {
        output.write_all(b", all kept")
    } else {
        output.write_all(b", written")
    }
}

// The writer's answer at these sizes.
fn save(
    z: Sizes,
    list: [Action; MOST_ACTIONS],
    kinds: &[u8],
    store: &[u64],
    out: &mut [u8],
) -> Result<usize, Refusal> {
    let bytes = z.bytes.min(kinds.len());
    let numbers = z.numbers.min(store.len());
    let room = z.room.min(out.len());
    lender::save_first(
        list,
        z.actions,
        &kinds[..bytes],
        z.head,
        &store[..numbers],
        &mut out[..room],
    )
}

// How many bytes the writer may have changed, by what it answers.
fn say_saved(output: &mut Stdout, saved: Result<usize, Refusal>) -> io::Result<usize> {
    match saved {
        Err(refusal) => {
            write!(output, "{refusal}")?;
            Ok(0)
        }
        Ok(k) => {
            write!(output, "saved {k}")?;
            Ok(k)
        }
    }
}

// Writes what the writer answers, and whether the rest of its buffer is as it was lent.
fn tell_writer(
    output: &mut Stdout,
    z: Sizes,
    list: [Action; MOST_ACTIONS],
    kinds: [u8; KINDS],
    store: [u64; STORE_LENGTH],
) -> io::Result<()> {
    let mut out = [255u8; ROOM];
    let saved = save(z, list, &kinds, &store, &mut out);
    output.write_all(b"; writer: ")?;
    let k = say_saved(output, saved)?;
    if kept_from(&out, k) {
        output.write_all(b", rest kept\n")
    } else {
        output.write_all(b", REST WRITTEN\n")
    }
}

// The answers of the second door, of the finder and of the writer.
fn tell(
    output: &mut Stdout,
    name: &[u8],
    z: Sizes,
    list: [Action; MOST_ACTIONS],
    kinds: [u8; KINDS],
    lent: [u64; STORE_LENGTH],
) -> io::Result<()> {
    output.write_all(name)?;
    tell_door(output, z, list, kinds, lent)?;
    tell_finder(output, z, list, kinds, lent)?;
    tell_writer(output, z, list, kinds, lent)
}

// The good actions, places and store at these sizes.
fn tell_sizes(output: &mut Stdout, name: &[u8], z: Sizes) -> io::Result<()> {
    tell(output, name, z, actions(), kinds(), store())
}

// 9.
fn wrong_room(output: &mut Stdout) -> io::Result<()> {
    let mut z = right_sizes();
    z.numbers = STORE_LENGTH - 1;
    tell_sizes(output, b"a store of 4607 numbers", z)?;
    z = right_sizes();
    z.order = ORDER_LENGTH - 1;
    tell_sizes(output, b"an order buffer of 127 bytes", z)
}

// 4, and the newest edition between.
fn other_editions(output: &mut Stdout) -> io::Result<()> {
    let mut z = right_sizes();
    z.head.edition = 0;
    tell_sizes(output, b"the edition is 0", z)?;
    z.head.edition = 2;
    tell_sizes(output, b"the edition is 2", z)?;
    z.head.edition = 3;
    tell_sizes(output, b"the edition is 3", z)?;
    z.head.edition = 65538;
    tell_sizes(output, b"the edition is 65538", z)
}

// 5, then 3.
fn wrong_sizes(output: &mut Stdout) -> io::Result<()> {
    let mut z = right_sizes();
    z.head.n = MOST_ACTIONS + 1;
    tell_sizes(output, b"N is 129", z)?;
    z = right_sizes();
    z.head.t = MOST_THREADS + 1;
    tell_sizes(output, b"T is 17", z)?;
    z = right_sizes();
    z.head.p = MOST_PLACES + 1;
    tell_sizes(output, b"P is 65", z)
}

fn wrong_lengths(output: &mut Stdout) -> io::Result<()> {
    let mut z = right_sizes();
    z.actions = 1;
    tell_sizes(output, b"one action of two", z)?;
    z.actions = 3;
    tell_sizes(output, b"three actions for two", z)?;
    z = right_sizes();
    z.bytes = 1;
    tell_sizes(output, b"one place byte of two", z)?;
    z.bytes = 3;
    tell_sizes(output, b"three place bytes for two", z)
}

// n actions of one thread, with rf, sc and mo empty but for number i.
fn tell_half(output: &mut Stdout, name: &[u8], n: usize, i: usize, number: u64) -> io::Result<()> {
    let mut z = right_sizes();
    z.actions = n;
    z.head.n = n;
    let mut lent = store_with(i, number);
    lent[RF_AT] = 0;
    if i == RF_AT {
        lent[RF_AT] = number;
    }
    tell(output, name, z, actions(), kinds(), lent)
}

// 5 of the finder alone, and 12.
fn wrong_halves(output: &mut Stdout) -> io::Result<()> {
    tell_half(output, b"rf, sc and mo empty", 2, RF_AT, 0)?;
    tell_half(output, b"rf, row 0, to itself", 2, RF_AT, 1)?;
    tell_half(output, b"rf, row 1", 2, RF_AT + ROW_1, 1)?;
    tell_half(output, b"sc, row 0", 2, SC_AT, 1)?;
    tell_half(output, b"mo, row 1", 2, MO_AT + ROW_1, 2)?;
    tell_half(output, b"cd, row 1", 2, CD_AT + ROW_1, 2)?;
    tell_half(output, b"8 actions", 8, RF_AT, 0)?;
    tell_half(output, b"9 actions", 9, RF_AT, 0)?;
    tell_half(output, b"9 actions, rf", 9, RF_AT, 1)
}

// The good sizes, with another store.
fn tell_store(output: &mut Stdout, name: &[u8], i: usize, number: u64) -> io::Result<()> {
    tell(
        output,
        name,
        right_sizes(),
        actions(),
        kinds(),
        store_with(i, number),
    )
}

// 6, then 7.
fn wrong_contents(output: &mut Stdout) -> io::Result<()> {
    tell(
        output,
        b"place 0 is of kind 3",
        right_sizes(),
        actions(),
        kinds_with(0, 3),
        store(),
    )?;
    tell(
        output,
        b"place 1 is of kind 255",
        right_sizes(),
        actions(),
        kinds_with(1, 255),
        store(),
    )?;
    tell(
        output,
        b"action 0 in thread T",
        right_sizes(),
        moved(0, 1, 0),
        kinds(),
        store(),
    )?;
    tell(
        output,
        b"action 1 at place P",
        right_sizes(),
        moved(1, 0, 2),
        kinds(),
        store(),
    )?;
    tell_store(output, b"sb, row 0, column N", 0, 4)?;
    tell_store(output, b"sb, row 0, column 64", 1, 1)?;
    tell_store(
        output,
        b"mo, row 1, last column",
        MO_AT + ROW_1 + 1,
        9223372036854775808,
    )?;
    tell_store(output, b"asw, row N", ASW_AT + ROW_2, 1)?;
    tell_store(output, b"asw, row N, column 64", ASW_AT + ROW_2 + 1, 1)?;
    tell_store(output, b"mo, last row", GIVEN_LENGTH - 1, 1)?;
    tell_store(output, b"after mo", GIVEN_LENGTH, 18446744073709551615)
}

// 11: the two actions are of one thread.
fn asw_inside(output: &mut Stdout) -> io::Result<()> {
    tell_store(output, b"asw, row 0, to action 1", ASW_AT, 2)?;
    tell_store(output, b"asw, row 1, to action 0", ASW_AT + ROW_1, 1)?;
    tell_store(output, b"asw, row 0, to itself", ASW_AT, 1)?;
    tell_store(output, b"asw, row 1, to itself", ASW_AT + ROW_1, 2)?;
    tell(
        output,
        b"asw at two places",
        right_sizes(),
        moved(1, 0, 1),
        kinds(),
        store_with(ASW_AT, 2),
    )
}

// Action 1 is of thread 1, at the place of action 0.
fn asw_across(output: &mut Stdout) -> io::Result<()> {
    let mut z = right_sizes();
    z.head.t = 2;
    let list = moved(1, 1, 0);
    let mut lent = store_with(ASW_AT, 2);
    tell(
        output,
        b"asw from thread 0 to thread 1",
        z,
        list,
        kinds(),
        lent,
    )?;
    lent[ASW_AT] = 3;
    tell(
        output,
        b"asw, row 0, to itself and thread 1",
        z,
        list,
        kinds(),
        lent,
    )?;
    lent[ASW_AT] = 2;
    lent[ASW_AT + ROW_1] = 3;
    tell(
        output,
        b"asw, row 1, to thread 0 and itself",
        z,
        list,
        kinds(),
        lent,
    )
}

// n actions of one thread, with another store.
fn tell_many(output: &mut Stdout, name: &[u8], n: usize, i: usize, number: u64) -> io::Result<()> {
    let mut z = right_sizes();
    z.actions = n;
    z.head.n = n;
    tell(output, name, z, actions(), kinds(), store_with(i, number))
}

// 7, 11 and 6 where the rows have a high half.
fn wrong_high(output: &mut Stdout) -> io::Result<()> {
    tell_many(output, b"64 actions: sb, row 0, column 64", 64, 1, 1)?;
    tell_many(
        output,
        b"65 actions: sb, row 64, column 65",
        65,
        rows::WIDE * 64 + 1,
        2,
    )?;
    tell_many(
        output,
        b"127 actions: mo, row 126, last column",
        127,
        MO_AT + rows::WIDE * 126 + 1,
        9223372036854775808,
    )?;
    tell_many(
        output,
        b"127 actions: asw, row 127",
        127,
        ASW_AT + LAST_ROW,
        1,
    )?;
    tell_many(
        output,
        b"128 actions: asw, row 0, to action 64",
        MOST_ACTIONS,
        ASW_AT + 1,
        1,
    )?;
    tell_many(
        output,
        b"128 actions: asw, row 127, to itself",
        MOST_ACTIONS,
        ASW_AT + LAST_ROW + 1,
        9223372036854775808,
    )?;
    let mut z = right_sizes();
    z.actions = MOST_ACTIONS;
    z.head.n = MOST_ACTIONS;
    tell(
        output,
        b"128 actions: action 127 at place P",
        z,
        moved(127, 0, 2),
        kinds(),
        store(),
    )
}

// Of two things wrong, one of them a size or the edition, the one that is tested first.
fn two_wrong_sizes(output: &mut Stdout) -> io::Result<()> {
    let mut z = right_sizes();
    z.order = 0;
    z.head.edition = 3;
    tell_sizes(output, b"9 before 4", z)?;
    z.head.edition = 1;
    z.head.n = MOST_ACTIONS + 1;
    tell_sizes(output, b"9 before 5", z)?;
    z.order = ORDER_LENGTH;
    z.head.edition = 3;
    tell_sizes(output, b"4 before 5", z)?;
    z.head.n = 1;
    tell_sizes(output, b"4 before 3", z)?;
    z = right_sizes();
    z.head.edition = 3;
    z.room = 0;
    tell_sizes(output, b"4 before a short buffer", z)?;
    z = right_sizes();
    z.head.p = MOST_PLACES + 1;
    z.actions = 1;
    tell_sizes(output, b"5 before 3", z)
}

// The same with places, actions and numbers.
fn two_wrong(output: &mut Stdout) -> io::Result<()> {
    let mut z = right_sizes();
    z.bytes = 3;
    tell(
        output,
        b"3 before 6",
        z,
        actions(),
        kinds_with(1, 3),
        store(),
    )?;
    z = right_sizes();
    tell(
        output,
        b"places before actions",
        z,
        moved(0, 0, 7),
        kinds_with(1, 3),
        store(),
    )?;
    tell(
        output,
        b"6 before 7",
        z,
        moved(1, 9, 0),
        kinds(),
        store_with(0, 4),
    )?;
    let mut two = store_with(DD_AT + ROW_2, 1);
    two[DD_AT + ROW_1] = 4;
    tell(
        output,
        b"the lower number first",
        z,
        actions(),
        kinds(),
        two,
    )?;
    two = store_with(DD_AT + ROW_1 + 1, 1);
    two[DD_AT + ROW_1] = 4;
    tell(output, b"the low half first", z, actions(), kinds(), two)?;
    two = store_with(DD_AT + ROW_1 + 1, 1);
    two[DD_AT + ROW_2] = 1;
    tell(
        output,
        b"the high half before the next row",
        z,
        actions(),
        kinds(),
        two,
    )?;
    z.room = 0;
    tell(
        output,
        b"7 before a short buffer",
        z,
        actions(),
        kinds(),
        two,
    )
}

// The same with 11.
fn eleven_and_other(output: &mut Stdout) -> io::Result<()> {
    let mut z = right_sizes();
    let mut two = store_with(ASW_AT, 2);
    two[ASW_AT + ROW_1] = 1;
    tell(
        output,
        b"the lower row of asw first",
        z,
        actions(),
        kinds(),
        two,
    )?;
    two = store_with(ASW_AT, 2);
    tell(output, b"6 before 11", z, moved(1, 9, 0), kinds(), two)?;
    two[ASW_AT] = 6;
    tell(
        output,
        b"7 of the row before 11",
        z,
        actions(),
        kinds(),
        two,
    )?;
    two = store_with(ASW_AT, 2);
    two[ASW_AT + 1] = 1;
    tell(
        output,
        b"7 of the row's high half before 11",
        z,
        actions(),
        kinds(),
        two,
    )?;
    two = store_with(ASW_AT, 2);
    two[ASW_AT + ROW_2] = 1;
    tell(
        output,
        b"7 of a later row before 11",
        z,
        actions(),
        kinds(),
        two,
    )?;
    two = store_with(ASW_AT, 2);
    two[MO_AT + ROW_1] = 4;
    tell(output, b"7 of mo before 11", z, actions(), kinds(), two)?;
    z.room = 0;
    two = store_with(ASW_AT, 2);
    tell(
        output,
        b"11 before a short buffer",
        z,
        actions(),
        kinds(),
        two,
    )
}

// Whether the writer refuses a buffer of `room` bytes with 9 at 0, and leaves it as it was, for the good list.
fn refuses(room: usize) -> bool {
    let mut z = right_sizes();
    z.room = room;
    let mut out = [255u8; ROOM];
    let saved = save(z, actions(), &kinds(), &store(), &mut out);
    saved == Err(NO_ROOM) && kept_from(&out, 0)
}

// How many buffers of fewer than `length` bytes it refuses so.
fn refused_below(length: usize) -> usize {
    let mut refused = 0;
    for room in 0..length {
        if refuses(room) {
            refused += 1;
        }
    }
    refused
}

// Buffers of one byte less than the file has, down to none.
fn short_buffers(output: &mut Stdout) -> io::Result<()> {
    let length = drawing::file_length(2, 2);
    output.write_all(b"of ")?;
    write!(output, "{length}")?;
    output.write_all(b" buffers shorter than the file: refused 9 0, all kept: ")?;
    write!(output, "{}", refused_below(length))?;
    output.write_all(b"\n")
}

pub fn tell_all(output: &mut Stdout) -> io::Result<()> {
    tell_sizes(output, b"nothing wrong", right_sizes())?;
    wrong_room(output)?;
    other_editions(output)?;
    wrong_sizes(output)?;
    wrong_lengths(output)?;
    wrong_contents(output)?;
    asw_inside(output)?;
    asw_across(output)?;
    wrong_high(output)?;
    two_wrong_sizes(output)?;
    two_wrong(output)?;
    eleven_and_other(output)?;
    wrong_halves(output)?;
    short_buffers(output)
}
