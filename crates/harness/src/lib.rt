// The library's calls under the C ABI, with one reply record, for the differential tests and benchmarks only: they are not in the header that
// ships. The contracts are the library's own equations, so the code here can only hand arguments and replies on. C passes a table's numbers one by one.
#![tactic(auto)]

mod one_table;
mod replies;
mod texts;
mod two_tables;
