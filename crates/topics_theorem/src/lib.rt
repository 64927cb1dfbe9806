// Topics and filters as relations, after MQTT 4.7 and 02's P5, and what the definitions say by them.
#![tactic(auto)]
