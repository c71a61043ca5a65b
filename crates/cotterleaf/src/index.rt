// The index as columns; and whether a given index is the stream's own.
ghost use Rattle.std.specs.Prelude.{◌≡◌, length};
ghost use Rattle.mrd_stream.specs.Index.{start_column, id_column, counter_column};
ghost use Rattle.mrd_stream.specs.Output.{output_by};
ghost use Rattle.mrd_columns.specs.Columns.{columns_answer};
ghost use Rattle.mrd_index_match.specs.Compare.{file_match, columns_match};
ghost use Rattle.c_written.specs.WrittenStructs.{c_matched, c_written};
ghost use Rattle.c_rules.specs.RulesStruct.{rules_of};

use c_rules::Rules;
use c_written::{Matched, Written};

// As a file, byte for byte and in whole.
#[unsafe(no_mangle)]
pub extern "C" fn mrd_index_matches(rules: Rules, stream: &[u8], file: &[u8]) -> Matched
    ensures { result ≡ c_matched (file_match (rules_of rules) stream.now file.now) }
{
    Matched::from(mrd_index_match::index_matches(rules.into(), stream, file))
}

// As three columns, each record's place.
#[unsafe(no_mangle)]
pub extern "C" fn mrd_columns_match(
    rules: Rules,
    stream: &[u8],
    starts: &[u64],
    ids: &[u16],
    counters: &[u32],
) -> Matched
    ensures { result ≡ c_matched (columns_match (rules_of rules) stream.now starts.now ids.now counters.now) }
{
    Matched::from(mrd_index_match::columns_match(rules.into(), stream, starts, ids, counters))
}

// Fills the columns with the index of a stream, place n for record n.
#[unsafe(no_mangle)]
pub extern "C" fn mrd_fill_columns(
    rules: Rules,
    stream: &[u8],
    starts: &mut [u64],
    ids: &mut [u16],
    counters: &mut [u32],
) -> Written
    ensures value { result ≡ c_written (columns_answer (rules_of rules) stream.now (length starts.old) (length ids.old) (length counters.old)) }
    ensures starts_after { starts.new ≡ output_by (columns_answer (rules_of rules) stream.now (length starts.old) (length ids.old) (length counters.old)) (start_column (rules_of rules) stream.now) starts.old }
    ensures ids_after { ids.new ≡ output_by (columns_answer (rules_of rules) stream.now (length starts.old) (length ids.old) (length counters.old)) (id_column (rules_of rules) stream.now) ids.old }
    ensures counters_after { counters.new ≡ output_by (columns_answer (rules_of rules) stream.now (length starts.old) (length ids.old) (length counters.old)) (counter_column (rules_of rules) stream.now) counters.old }
{
    Written::from(mrd_columns::fill_columns(rules.into(), stream, starts, ids, counters))
}
