// What callers may rest on, as a function that does nothing: the law is the contract.
ghost use Rattle.va_ports.specs.SearchLaws.{OwnCellsLieBetween};

/// Where each vector lies in its cell, each distance lies between the bounds of its cell.
pub fn own_cells_lie_between()
    ensures { OwnCellsLieBetween }
{}
