// An ordering query's answer, `B` incomplete, remote; `E`; `M` remote; or a refusal, 51 with its list. And a line that can't be read.
ghost use Rattle.printing.specs.Shown.{shown_unprovable, shown_blocked, shown_managed, shown_ordering, shown_unreadable};
ghost use Rattle.texts.specs.Written.{Wrote};

use crate::fields::{field_list, last_list, last_number, put_bare};
use crate::refusals::{put_refusal, put_refused};
use answers::{Eligibility, Refusal, RefusalWords};
use texts::area::put_byte;

fn put_unprovable(out: &mut [u8], at: usize, id: u64, list: &[u64], count: usize) -> usize
    ensures { Wrote out.old at (shown_unprovable id count list.now) out.new result }
{
    let p = put_refused(
        out,
        at,
        RefusalWords {
            number: 51,
            a: id,
            b: 0,
            c: 0,
            d: 0,
        },
    );
    last_list(out, p, list, count)
}

fn put_blocked(
    out: &mut [u8],
    at: usize,
    first: &[u64],
    n: usize,
    second: &[u64],
    m: usize,
) -> usize
    ensures { Wrote out.old at (shown_blocked n first.now m second.now) out.new result }
{
    let p = put_byte(out, at, b'B');
    let q = field_list(out, p, first, n);
    last_list(out, q, second, m)
}

fn put_managed(out: &mut [u8], at: usize, second: &[u64], m: usize) -> usize
    ensures { Wrote out.old at (shown_managed m second.now) out.new result }
{
    let p = put_byte(out, at, b'M');
    last_list(out, p, second, m)
}

pub fn put_ordering(
    out: &mut [u8],
    at: usize,
    answer: Result<Eligibility, Refusal>,
    first: &[u64],
    second: &[u64],
) -> usize
    ensures { Wrote out.old at (shown_ordering answer first.now second.now) out.new result }
{
    match answer {
        Err(r) => put_refusal(out, at, r.into()),
        Ok(Eligibility::Unprovable { id, count }) => put_unprovable(out, at, id, first, count),
        Ok(Eligibility::Blocked { incomplete, remote }) => {
            put_blocked(out, at, first, incomplete, second, remote)
        }
        Ok(Eligibility::Eligible) => put_bare(out, at, b'E'),
        Ok(Eligibility::BrokerManaged { remote }) => put_managed(out, at, second, remote),
    }
}

pub fn put_unreadable(out: &mut [u8], at: usize, number: u64) -> usize
    ensures { Wrote out.old at (shown_unreadable number) out.new result }
{
    let p = put_byte(out, at, b'X');
    last_number(out, p, number)
}
