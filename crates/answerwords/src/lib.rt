// The words of an answer in one line, in a lent buffer: who stands on a processor, and the verdict on a reserve.
// Definitions and laws; the code stands in answerwords_code and fit_stand.
#![tactic(auto)]
