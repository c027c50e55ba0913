// The segments at each node, found once for a job, so that a walk over the tree asks each segment once.
#![tactic(auto)]

ghost use Rattle.std.specs.Prelude.{◌≡◌, true, ◌+◌, ◌<◌, ◌≤◌, length, replicate};
ghost use Rattle.net.specs.Questions.{question9};
ghost use Rattle.links.specs.Links.{Unlinked, LinkedBy, SameLengths};

use job::Records;

// The first segment at each node, and the next sibling of each segment. Where there is none stands the number of segments.
#[derive(Clone, Copy)]
pub struct Links {
    pub first: [usize; 65],
    pub next: [usize; 64],
}

impl Links {
    // Tables for `link` to fill.
    pub fn new() -> Links
        ensures { (result.first ≡ replicate 65 0) × (result.next ≡ replicate 64 0) }
    {
        Links {
            first: [0; 65],
            next: [0; 64],
        }
    }
}

// No segment is linked yet: at each node the first is the one past the last.
fn unlink(first: &mut [usize], n: usize)
    requires { n < length first.old }
    ensures { Unlinked n (length first.old) first.new (n + 1) }
{
    for q in 0..n + 1 {
        first[q] = n;
    }
}

// Fills two tables, such as those of `Links`, with the first segment at each node and the next sibling of each segment: from the last segment down, each
// goes before the first at its node. Each parent is read here, so question 9 is asked here too: a parent byte above the segment's own number ends the
// loop, and what the tables hold then says nothing.
pub fn link(records: &Records<'_>, first: &mut [usize], next: &mut [usize]) -> bool
    requires { (records.now.counts.segments < length first.old) × (records.now.counts.segments ≤ length next.old) }
    ensures asked { result ≡ question9 records.now.counts records.now.bytes.now }
    ensures linked { result ≡ true → LinkedBy records.now.counts records.now.bytes.now first.new next.new }
    ensures lengths { SameLengths first.old next.old first.new next.new }
{
    let n = records.counts.segments;
    unlink(first, n);
    for j in (0..n).rev() {
        let parent = records.parent(j);
        if j < parent {
            return false;
        }
        next[j] = first[parent];
        first[parent] = j;
    }
    true
}
