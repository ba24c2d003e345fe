//! What holds of the definitions.

ghost use Rattle.luau_lexer.specs.Laws.{AllHaveOneReading, TokenListsAreOne, SymbolsAreLongest};

/// Each text has either one list of tokens or one fault.
pub fn one_reading()
    ensures { AllHaveOneReading }
{}

/// A text has at most one list of tokens, with the numbers that an interner gives that held the fixed texts alone.
pub fn one_token_list()
    ensures { TokenListsAreOne }
{}

/// Of the symbols of the table with which some bytes begin, the one that is taken is the longest.
pub fn longest_symbol()
    ensures { SymbolsAreLongest }
{}
