// Sets of node numbers 1 to 32 in a u32: node 1 is the lowest bit. Every u32 is a set. A number
// that is not 1 to 32 names no node: no set has it, and with and without leave the set as it is. Which
// nodes a cable has is not asked here: the functions that count or test take n.
#![tactic(auto)]

ghost use Rattle.std.specs.Prelude.{◌≡◌};
ghost use Rattle.nodeset.specs.Sets.{has, with, with_if, without, union, minus, full, within, subset, size, distance, run};

// Whether node x is in the set.
pub fn has(s: u32, x: u32) -> bool
    ensures { result ≡ has s x }
{
    if x == 0 {
        return false;
    }
    if 32 < x {
        return false;
    }
    (s >> (x - 1)) % 2 == 1
}

// The set with node x.
pub fn with(s: u32, x: u32) -> u32
    ensures { result ≡ with s x }
{
    if x == 0 {
        return s;
    }
    if 32 < x {
        return s;
    }
    if has(s, x) {
        return s;
    }
    s + (1 << (x - 1))
}

// The set with node x if so, else the set itself.
pub fn with_if(so: bool, s: u32, x: u32) -> u32
    ensures { result ≡ with_if so s x }
{
    if so {
        return with(s, x);
    }
    s
}

// The set without node x.
pub fn without(s: u32, x: u32) -> u32
    ensures { result ≡ without s x }
{
    if !has(s, x) {
        return s;
    }
    s - (1 << (x - 1))
}

// The nodes that are in one of the sets or in both.
pub fn union(a: u32, b: u32) -> u32
    ensures { result ≡ union a b }
{
    a | b
}

// The nodes of the first set that are not in the second.
pub fn minus(a: u32, b: u32) -> u32
    ensures { result ≡ minus a b }
{
    a & !b
}

// The set of the nodes 1 to n.
pub fn full(n: u32) -> u32
    ensures { result ≡ full n }
{
    if n < 32 {
        return (1 << n) - 1;
    }
    0xffff_ffff
}

// Whether every node of the first set is in the second.
pub fn is_subset(a: u32, b: u32) -> bool
    ensures { result ≡ subset a b }
{
    minus(a, b) == 0
}

// Whether the set holds only numbers 1 to n.
pub fn is_within(n: u32, s: u32) -> bool
    ensures { result ≡ within n s }
{
    is_subset(s, full(n))
}

// How many of the nodes 1 to n are in the set.
pub fn size(n: u32, s: u32) -> u32
    ensures { result ≡ size n s }
{
    u32::count_ones(s & full(n))
}

// How many of the nodes 1 to n are in one of the sets and not in the other.
pub fn distance(n: u32, a: u32, b: u32) -> u32
    ensures { result ≡ distance n a b }
{
    size(n, a ^ b)
}

// The run of ones from bit 1.
pub fn run(s: u32) -> u32
    ensures { result ≡ run s }
{
    u32::trailing_zeros(!s)
}
