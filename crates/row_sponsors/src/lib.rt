// Whom a node sponsors and decides, by the row of members (document 02, request l): the j-th member before a
// node is j places back, round the row's end. An inner layer: every row, number and cable is taken as it is.
#![tactic(auto)]

ghost use Rattle.std.specs.Prelude.{◌≡◌};
ghost use Rattle.row.specs.Inner.{back_in, before_row};
ghost use Rattle.row.specs.Sponsoring.{sponsors_row, decided_row};

use cable::Cable;
use row::Row;

// The j-th member before a node with p members before it, itself in the row or not: j places back in
// the row, round its end. 0 for nobody, by the definition `back_in`: 0 is in no set.
pub fn back(row: Row, p: usize, here: bool, j: u32) -> u32
    ensures { result ≡ back_in row p here j }
{
    let count = row.length;
    if (j == 0) | ((32 < count) | (32 < p)) {
        return 0;
    }
    if j as usize <= p {
        return row::wide(row.nodes[p - j as usize]);
    }
    if (count < j) | ((count == j) & here) {
        return 0;
    }
    row::wide(row.nodes[count as usize + p - j as usize])
}

// The j-th member before node x; 0 for nobody, as the law `before-row` has it by `member_in`.
pub fn before(order: [u8; 32], row: Row, x: u32, j: u32) -> u32
    ensures { result ≡ before_row order row x j }
{
    let p = row::rank(order, row, x);
    back(row, p, row::has(row, x), j)
}

// How many of the row's members one of them sponsors.
pub fn sponsors(cable: Cable, row: Row) -> u32
    ensures { result ≡ sponsors_row cable row }
{
    ring::ks(cable, row.length)
}

// The member that node x decides: the last that it sponsors; 0 for nobody, by the definition
// `decided_row`.
pub fn decided(cable: Cable, row: Row, x: u32) -> u32
    ensures { result ≡ decided_row cable row x }
{
    let most = sponsors(cable, row);
    if most == 0 {
        return 0;
    }
    let order = cable.order;
    before(order, row, x, most + cable.lag)
}
