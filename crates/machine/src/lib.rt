// The 8042 keyboard controller, in PS/2 or AT mode and with either command set: its definitions and their laws. The program is in the crates above.
#![tactic(auto)]
