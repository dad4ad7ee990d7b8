ghost use Rattle.log_records.specs.Spelling.{op, logical, physical, OpFits, IsLogical, IsPhysical, HasOneSpelling};

/// The law of the spellings: of operations, of logical records and of physical records, each has one spelling, and no
/// spelling begins another. So what was written is read again, whatever follows it.
pub fn one_spelling()
    ensures ops { HasOneSpelling op OpFits }
    ensures records { HasOneSpelling logical IsLogical }
    ensures physical_records { HasOneSpelling physical IsPhysical }
{}
