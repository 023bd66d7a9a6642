// A SACK goes out.
ghost use Rattle.std.specs.Prelude.{ℕ, ◌≡◌, List, map};
ghost use Rattle.calls.specs.Acknowledging.{no_sack};
ghost use Rattle.asks.specs.TableAcknowledging.{sack_reply_of};
ghost use Rattle.face.specs.FaceLeft.{call_told_of};
ghost use Rattle.face.specs.FaceAcknowledging.{tsn_number, said_in, said_told, said_lists};
ghost use Rattle.face.specs.Promises.{Acknowledges};

use crate::answer::{Served, unserved};
use asks::Acknowledged;
use chunks::sack::Sack;
use flat::Head;
use kept::Kept;
use numbers::{Rail, Refusal, Tsn};

fn numbers_of(tsns: [Tsn; Rail::LISTED]) -> [u32; Rail::LISTED]
    ensures { result ≡ map tsn_number tsns }
{
    let mut numbers = [0u32; Rail::LISTED];
    for i in 0..Rail::LISTED {
        numbers[i] = tsns[i].0;
    }
    numbers
}

// The blocks, and the duplicates. An array that is a field goes by a variable: the borrow checker covers no other form.
fn list(sack: Sack, starts: &mut [u16; 64], ends: &mut [u16; 64], dups: &mut [u32; 16])
    ensures { (out : List ℕ) → said_in starts.new ends.new dups.new out ≡ said_lists sack out }
{
    let first = sack.blocks.starts;
    let last = sack.blocks.ends;
    let repeats = sack.dups;
    let numbers = numbers_of(repeats);
    *starts = first;
    *ends = last;
    *dups = numbers;
}

// No block and no duplicate.
fn unsaid(starts: &mut [u16; 64], ends: &mut [u16; 64], dups: &mut [u32; 16])
    ensures { (out : List ℕ) → said_in starts.new ends.new dups.new out ≡ said_lists no_sack out }
{
    *starts = [0; 64];
    *ends = [0; 64];
    *dups = [0; 16];
}

// Told: length, point, window, how many blocks, how many duplicates.
fn said(
    head: Head,
    answer: Result<Acknowledged, Refusal>,
    starts: &mut [u16; 64],
    ends: &mut [u16; 64],
    dups: &mut [u32; 16],
    told: &mut [usize; 5],
) -> Served
    ensures call { call_told_of result.number result.kept told.new ≡ said_told (sack_reply_of head answer) }
    ensures lists { (out : List ℕ) → said_in starts.new ends.new dups.new out ≡ said_lists (sack_reply_of head answer).sack out }
{
    match answer {
        Ok(a) => {
            list(a.sack, starts, ends, dups);
            *told = [
                a.length,
                a.sack.point.0 as usize,
                a.sack.window as usize,
                a.sack.blocks.count,
                a.sack.listed,
            ];
            Served::done(kept::pack(a.head))
        }
        Err(refusal) => {
            unsaid(starts, ends, dups);
            *told = [0; 5];
            Served::refused(kept::pack(head), refusal)
        }
    }
}

// A SACK goes out.
pub fn sack(
    k: Kept,
    held: &[u32; 512],
    places: &[u32; 1024],
    out: &mut [u8],
    starts: &mut [u16; 64],
    ends: &mut [u16; 64],
    dups: &mut [u32; 16],
    told: &mut [usize; 5],
) -> Served
    ensures { Acknowledges k held.now places.now out.old (call_told_of result.number result.kept told.new) (said_in starts.new ends.new dups.new out.new) }
{
    if !kept::is_named(k) {
        unsaid(starts, ends, dups);
        return unserved(k, told);
    }
    let head = kept::unpack(k);
    let answer = asks::sack(head, held, places, out);
    said(head, answer, starts, ends, dups, told)
}
