// The sheet, a catalogue in bytes: its layout, its checks, and lemmas on them.
#![tactic(auto)]
