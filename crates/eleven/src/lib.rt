// No code: witnesses of what is promised of messages, example 11 as a run with other packets around it, and the message of document 01's log.
#![tactic(auto)]
