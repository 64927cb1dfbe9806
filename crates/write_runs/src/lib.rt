// What is handed over for one row of the table of properties, and the strings that lengths cut a run into. Whether it belongs together is
// told by `write_belongs`, its size is counted by `write_sizes`, its fields are tested by `write_tests`, its bytes are put by `write_properties`; writers
// are straight lines over all four.
// A run goes as two slices beside one another, its bytes and their lengths: `write` of packet_write and the functions for C have them so, and a struct
// would be built anew at each of their calls.
#![tactic(auto)]

pub mod run;
