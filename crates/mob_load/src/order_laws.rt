//! Laws of the order in which a script is checked. Each is proved for every script; calling one
//! does nothing.
ghost use Rattle.mob_load.specs.Order.{LooksAtCheckpoints, LooksInOrder};

/// Besides the literals, each new table, each row of an INSERT and each file of a COPY is checked
/// once, in written order.
pub fn checkpoints_are_looked_at()
    ensures once { LooksAtCheckpoints }
{}

/// If the literals of a script and the brackets of its rows are in written order, each of these
/// checkpoints is checked after the checkpoints before it and after exactly the literals before it.
pub fn script_is_looked_at_in_order()
    ensures cut { LooksInOrder }
{}
