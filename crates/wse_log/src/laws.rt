// What holds of the definitions.
ghost use Rattle.wse_log.specs.Laws.{EachAreaReads, AreasReadOneWay, FreshJournalsRead};

/// Each list of numbers, bytes or not, is a journal, with one list of records and one place of the closed gate, or it has one first
/// place where it is no journal, behind one list of records.
pub fn an_area_reads_in_one_way()
    ensures reads { EachAreaReads }
    ensures once { AreasReadOneWay }
{}

/// What is written of a new journal reads as its one record, and the closed gate behind it.
pub fn a_fresh_journal_reads()
    ensures { FreshJournalsRead }
{}
