// Cover light (document 02, request n): how bright each lamp is, by what a node knows. Lamps have the
// nodes' numbers. It stands above the node library and takes a record apart by `node::as_set` alone; the
// base levels are lent as bytes, that of lamp 1 first.
#![tactic(auto)]

ghost use Rattle.std.specs.Prelude.{◌≡◌, true, ◌++◌, map, ◌≤◌, length, drop};
ghost use Rattle.cable.specs.slot_table.Order.{numbers_from};
ghost use Rattle.node_record.specs.Soundness.{sound};
ghost use Rattle.node_record.specs.Held.{setted};
ghost use Rattle.cover_light.specs.Light.{base, half, worked, given_by, bases_fit, level_of, levels_of};

use node_record::{Held, Node};
use refusal::Refusal;

// The base of a lamp; 0 where there is no such lamp, by the definition `base`: "Lamps 1 and n have one
// neighbour".
fn base(bases: &[u8], lamp: u32) -> u8
    ensures { result ≡ base bases.now lamp }
{
    if lamp == 0 {
        return 0;
    }
    bases.get((lamp - 1) as usize).copied().unwrap_or(0)
}

// What a neighbour adds: half its base, if it is not listed.
fn half(list: u32, bases: &[u8], lamp: u32) -> u8
    ensures { result ≡ half list bases.now lamp }
{
    if nodeset::has(list, lamp) {
        return 0;
    }
    base(bases, lamp) / 2
}

// The level that a member with this list works out. Requires a number of a lamp.
fn worked(list: u32, bases: &[u8], lamp: u32) -> u8
    requires { (1 ≤ lamp) × (lamp ≤ 32) }
    ensures { result ≡ worked list bases.now lamp }
{
    let own = base(bases, lamp);
    let before = half(list, bases, lamp - 1);
    let after = half(list, bases, lamp + 1);
    let sum = u32::from(own) + u32::from(before) + u32::from(after);
    sum.min(254) as u8
}

// The level that a node gives, a member or not. Requires a number of a lamp.
fn given(member: bool, list: u32, bases: &[u8], lamp: u32) -> u8
    requires { (1 ≤ lamp) × (lamp ≤ 32) }
    ensures { result ≡ given_by member list bases.now lamp }
{
    if member {
        return worked(list, bases, lamp);
    }
    254
}

// Whether the table has n bases, none above 254.
fn bases_fit(n: u32, bases: &[u8]) -> bool
    ensures { result ≡ bases_fit n bases.now }
{
    bases.len() == n as usize && bases.iter().all(|&base| base <= 254)
}

// The level of a lamp by the record of the rules. Requires a sound one.
fn level_by(v: Node, bases: &[u8], lamp: u32) -> Result<u8, Refusal>
    requires { sound v ≡ true }
    ensures { result ≡ level_of v bases.now lamp }
{
    if !cable::is_node_number(v.cable.n, lamp) {
        return Err(Refusal::NodeNumber);
    }
    if !bases_fit(v.cable.n, bases) {
        return Err(Refusal::LampBases);
    }
    let state = v.state;
    Ok(given(node_record::is_member(state), v.set, bases, lamp))
}

// The level of a lamp. Refuses by 4, 3 and 20, in this order.
pub fn level(v: Held, bases: &[u8], lamp: u32) -> Result<u8, Refusal>
    ensures { result ≡ level_of (setted v) bases.now lamp }
{
    let node = node::as_set(v)?;
    level_by(node, bases, lamp)
}

// Writes the levels of the lamps 1 to n to the start of out. Requires room for them, and n at most 32.
fn fill(member: bool, list: u32, n: u32, bases: &[u8], out: &mut [u8])
    requires { (n ≤ 32) × (n ≤ length out.old) }
    ensures { out.new ≡ map (given_by member list bases.now) (numbers_from n 1) ++ drop n out.old }
{
    for i in 0..n {
        out[i as usize] = given(member, list, bases, i + 1);
    }
}

// The levels by the record of the rules. Requires a sound one.
fn levels_by(v: Node, bases: &[u8], out: &mut [u8]) -> Result<usize, Refusal>
    requires { sound v ≡ true }
    ensures { (result, out.new) ≡ levels_of v bases.now out.old }
{
    let n = v.cable.n;
    if !bases_fit(n, bases) {
        return Err(Refusal::LampBases);
    }
    if out.len() < n as usize {
        return Err(Refusal::OutputShort);
    }
    let state = v.state;
    fill(node_record::is_member(state), v.set, n, bases, out);
    Ok(n as usize)
}

// Writes the levels of all lamps, that of lamp 1 first, to the start of out, and leaves the bytes after
// them: how many they are. Refuses by 4, 20 and 9, in this order, and then writes nothing.
pub fn levels(v: Held, bases: &[u8], out: &mut [u8]) -> Result<usize, Refusal>
    ensures { (result, out.new) ≡ levels_of (setted v) bases.now out.old }
{
    let node = node::as_set(v)?;
    levels_by(node, bases, out)
}
