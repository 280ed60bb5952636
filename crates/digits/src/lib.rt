// Digits, numbers at a width in hexadecimal digits, the highest digit first, and texts stored at a place in a buffer. No code.
#![tactic(auto)]
