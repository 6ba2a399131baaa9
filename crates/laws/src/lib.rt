// What is proved of drawings, files, tables and answers: the laws are in specs/, and there is no code.
#![tactic(auto)]
