// When words represent a state of the model: specs/Represents.antt. No code stands here.

#![tactic(auto)]
