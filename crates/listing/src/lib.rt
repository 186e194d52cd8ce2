// What the program `table` writes, in digits: the console's lines of a table, or its refusal as a line.
#![tactic(auto)]

pub mod lines; // lines.rt: the lines of a table, and of a refusal that has a place
mod writer; // writer.rt: lines behind each other in lent memory
