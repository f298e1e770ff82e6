// The ● cases of document 01, proved as one table of the definitions (specs/WorkedCases.antt).
#![tactic(auto)]

ghost use Rattle.std.specs.Prelude.{◌≡◌, length};
ghost use Rattle.worked_cases.specs.WorkedCases.{table};

// How many rows the table has.
pub fn count() -> u64
    ensures { result ≡ length table }
{
    95
}
