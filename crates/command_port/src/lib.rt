// Port 64h: kind 3, a whole event with its checks. What a read of it gives is the status, which every answer has.
#![tactic(auto)]

pub mod commands;
