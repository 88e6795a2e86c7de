// The trackball on the controller's mouse port: what a host reads of its frames. Definitions and theorems over those of both; no function.
#![tactic(auto)]
