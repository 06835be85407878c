// Which states row 19 names: definitions, and that a good state stays good. No code: bad_streams and bad_messages test its clauses.
#![tactic(auto)]
