// Tables of the codec, after the helpers of mqttbytes/mod.rs and v5/mod.rs: what a number stands for.
#![tactic(auto)]

pub mod property;
pub mod qos;
pub mod reason;
