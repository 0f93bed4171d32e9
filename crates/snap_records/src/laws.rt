// Laws of chains. Each function has an empty body; its contract is the law.
ghost use Rattle.snap_records.specs.RecordLaws.{PrependPuts, OverwritePuts, ClearDrops, ReadableIsRead};

/// What prepending, overwriting and invalidating do to a chain, and that the readable record is read.
pub fn edits()
    ensures prepend { PrependPuts }
    ensures overwrite { OverwritePuts }
    ensures clear { ClearDrops }
    ensures readable { ReadableIsRead }
{}
