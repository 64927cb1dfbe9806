// What C calls: each function of the crates c_ROOM under its own name, with its clauses. bindings/c/ecchjulmina.h declares them.
#![tactic(auto)]

mod aliases;
mod filter_list;
mod matching;
mod messages_out;
mod next_frame;
mod read;
mod read_item;
mod read_name;
mod read_next;
mod saved_table;
mod tidy;
mod walk_next;
mod write_ack;
mod write_ping;
mod write_publish;
mod write_reply;
mod write_subscribe;
mod write_unsubscribe;
