// What is written reads back, and only what is written is read. Each function asserts theorems by its contract and does
// nothing.
ghost use Rattle.text.specs.Cases.{Numbers, Ends, Lists};
ghost use Rattle.text.specs.Theorems.{NumberReadsBack, NumberIsWritten, WordReadsBack, WordIsWritten, EndsReadBack, EndsAreWritten, NumbersReadBack, NumbersAreWritten};

pub fn what_is_written_reads_back()
    ensures word { WordReadsBack }
    ensures number { NumberReadsBack }
    ensures numbers { NumbersReadBack }
    ensures ends { EndsReadBack }
{}

pub fn only_what_is_written_is_read()
    ensures word { WordIsWritten }
    ensures number { NumberIsWritten }
    ensures numbers { NumbersAreWritten }
    ensures ends { EndsAreWritten }
{}

// The steps go as they should on a few texts.
pub fn cases_hold()
    ensures numbers { Numbers }
    ensures ends { Ends }
    ensures lists { Lists }
{}
