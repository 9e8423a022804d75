// What the bench program answers to a text: its whole output, and the promise of the call `answer`. There is no code.
#![tactic(auto)]
