// The language's grammar, and what reading and printing promise: theorems alone, which other crates cite.
#![tactic(auto)]

ghost use Rattle.grammar.specs.Tokens.{TokensAreLongestRuns};
ghost use Rattle.grammar.specs.Grammar.{AcceptsTheGrammar, RefusesAtTheFirstWrongToken, PrintReadsBack, PrintReadsBackInEnoughPlaces, PrintIsShort, ReadingIsBounded, OneReading, PrintsDiffer};

// A text falls into its tokens, each word as long as it can be, and into no others.
pub fn tokens_are_the_longest_runs()
    ensures { TokensAreLongestRuns }
{}

// A text is read as a program exactly if the grammar has it.
pub fn reading_accepts_exactly_the_grammar()
    ensures { AcceptsTheGrammar }
{}

// A text is refused exactly as the rules say, at its first wrong token.
pub fn reading_refuses_at_the_first_wrong_token()
    ensures { RefusesAtTheFirstWrongToken }
{}

// What is printed is read as the program that was printed.
pub fn what_is_printed_reads_back()
    ensures parsed { PrintReadsBack }
    ensures read { PrintReadsBackInEnoughPlaces }
{}

// What is printed is no longer than a text may be.
pub fn what_is_printed_is_short()
    ensures { PrintIsShort }
{}

// What is read is within the bounds of the language.
pub fn what_is_read_is_bounded()
    ensures { ReadingIsBounded }
{}

// Tokens are those of one program at most.
pub fn tokens_have_one_reading()
    ensures { OneReading }
{}

// Two programs have two texts.
pub fn programs_print_differently()
    ensures { PrintsDiffer }
{}
