// No code: what splitting a message or reading a symbol gives, added one by one to a fresh buffer, is the message again.
#![tactic(auto)]
