#![tactic(auto)]

// No code: the state that is read from an image holds what image_model says of its bytes.
