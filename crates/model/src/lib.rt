// What a collection can say, and what it says of a set of pages: definitions and laws only, in
// specs/ and proofs/.
//
// This is what the third demand (docs/DEMANDS.md) is made of. A book is what the rules give for the
// SET of good pages by membership alone (`BookIs`: model, Meaning); a set has one book
// (`book_one`), joining is union (`book_join`), and taking a page is joining that page alone
// (`take_join`: model, Sets). Finish gives the data exactly when the set is complete and undisputed
// and the id matches (`finish_whole`, `finish_14`, `finish_15`, `finish_16`: model, Finished;
// finish, Demand).
#![tactic(auto)]
