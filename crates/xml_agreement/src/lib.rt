// What the value reader reads of an element's range, and what is judged of the element: laws only.
#![tactic(auto)]
