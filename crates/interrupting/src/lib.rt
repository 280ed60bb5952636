// What a server must have had in a window of a length: the demand of its loads, and of the interrupts behind them the greatest over processors.
// Definitions and laws; the code stands in interrupting_code.
#![tactic(auto)]
